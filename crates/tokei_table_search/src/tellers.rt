//! Openers that are told by their first two bytes.
ghost use Rattle.std.specs.Prelude.{◌≡◌, ◌<◌, true, false, IfSome};
ghost use Rattle.std.specs.List.{list_all};
ghost use Rattle.tokei_table_row.specs.RowOf.{tokens_of};
ghost use Rattle.tokei_table_search.specs.Tellers.{AreTellers, tells};

use tokei_bytes::{NO_SLOTS, is_slotted, put_slot};

/// The bytes that tell where one of some openers can stand: those that do alone, and those that do
/// with one of the seconds behind them, each in the slot of its low half.
#[derive(Clone, Copy)]
pub struct Tellers {
    pub alone: [u8; 16],
    pub firsts: [u8; 16],
    pub seconds: [u8; 16],
}

/// Whether the opener's bytes tell it.
fn tells(tellers: &Tellers, opener: &[u8]) -> bool
    ensures { result ≡ tells tellers.now.alone tellers.now.firsts tellers.now.seconds opener.now }
{
    match opener {
        [] => false,
        [first] => is_slotted(tellers.alone, *first),
        [first, second, ..] => {
            is_slotted(tellers.alone, *first)
                || (is_slotted(tellers.firsts, *first) && is_slotted(tellers.seconds, *second))
        }
    }
}

/// Whether each opener's bytes tell it.
fn tells_all(tellers: &Tellers, openers: &[String]) -> bool
    ensures { result ≡ list_all
        (tells tellers.now.alone tellers.now.firsts tellers.now.seconds) (tokens_of openers.now) }
{
    for opener in openers {
        if !tells(tellers, opener.as_bytes()) {
            return false;
        }
    }
    true
}

/// Adds the bytes that tell the opener, where there is room.
fn add(tellers: &mut Tellers, opener: &[u8]) {
    match opener {
        [] => {}
        [first] => {
            let _put = put_slot(&mut tellers.alone, *first);
        }
        [first, second, ..] => {
            if is_slotted(tellers.alone, *first) {
                return;
            }
            let has_room = put_slot(&mut tellers.firsts, *first)
                && put_slot(&mut tellers.seconds, *second);
            if !has_room {
                let _put = put_slot(&mut tellers.alone, *first);
            }
        }
    }
}

/// The bytes that tell each of the openers, where slots have room for them.
pub(crate) fn tellers_of(openers: &[String]) -> Option<Tellers>
    ensures { IfSome result (λ t. AreTellers t (tokens_of openers.now)) }
{
    let mut tellers = Tellers {
        alone: NO_SLOTS,
        firsts: NO_SLOTS,
        seconds: NO_SLOTS,
    };
    for opener in openers {
        add(&mut tellers, opener.as_bytes());
    }
    if tells_all(&tellers, openers) {
        Some(tellers)
    } else {
        None
    }
}
