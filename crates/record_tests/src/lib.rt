//! Tests of the records on sectors: which sectors are refused, byte by byte. The proofs say it of
//! every sector; these run the compiled code.
#![tactic(auto)]

#[cfg(test)]
mod changes;
#[cfg(test)]
mod headers;
#[cfg(test)]
mod pages;
#[cfg(test)]
mod places;
