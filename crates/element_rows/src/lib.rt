//! Worked rows of elements, expressions and query lines over the Heisenberg group, as tests. They
//! stand in a crate of their own, above the readers and the evaluation that they join.
#![tactic(auto)]

#[cfg(test)]
mod compiling;
#[cfg(test)]
mod elements;
#[cfg(test)]
mod evaluation;
#[cfg(test)]
mod expression_words;
#[cfg(test)]
mod heisenberg;
#[cfg(test)]
mod loads;
#[cfg(test)]
mod query_lines;
