// This crate holds no code: specs/ says as definitions what docs/BOOK.md says in words, proofs/ has the theorems about them. Words in
// quotes in a comment are those by which docs/TRACE.md names a line of the papers.
#![tactic(auto)]
