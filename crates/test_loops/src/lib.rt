//! Tests that are loops and no rows: each text of a few pieces, worked texts cut after each byte,
//! texts many levels deep and too large to be written down, searches between each pair of places,
//! which are compared with a plain loop; calls, reads and writes that are made to fail in turn, and
//! readers that give little at a time. Of each text all calls that count texts have to return the
//! same. They are here, above those crates, since the tests of a crate are proved together with the
//! whole of it. What is a row stands in `test_rows`.
#![tactic(auto)]

#[cfg(test)]
mod block_search;
#[cfg(test)]
mod byte_searches;
#[cfg(test)]
mod cut_texts;
#[cfg(test)]
mod deep_tables;
#[cfg(test)]
mod ends;
#[cfg(test)]
mod given;
#[cfg(test)]
mod inputs;
#[cfg(test)]
mod made_texts;
#[cfg(test)]
mod patterns;
#[cfg(test)]
mod readers;
#[cfg(test)]
mod rows;
#[cfg(test)]
mod runs;
#[cfg(test)]
mod short_texts;
#[cfg(test)]
mod verdict;
#[cfg(test)]
mod walks;
