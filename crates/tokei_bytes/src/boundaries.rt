//! Character boundaries.
ghost use Rattle.std.specs.Prelude.{◌≡◌, ◌≤◌, length};
ghost use Rattle.tokei_bytes.specs.Boundaries.{IsLeastBoundary, boundary_from};

/// The least character boundary of the text that is not below the index `i`, which counts bytes.
#[tactic(auto, using(crate::proofs::LeastBoundary::boundary_from_least))]
pub fn find_char_boundary(s: &str, i: usize) -> usize
    requires { i ≤ length s.now }
    ensures least { IsLeastBoundary s.now i result }
    ensures value { result ≡ boundary_from s.now i }
{
    s.ceil_char_boundary(i)
}
