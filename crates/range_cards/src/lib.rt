// Tests of the range guest at its edges. Expected answers were written by hand from the rules in docs/GUESTS.md.
#![tactic(auto)]

#[cfg(test)]
mod codes;
#[cfg(test)]
mod narrowing;
#[cfg(test)]
mod nodes;
#[cfg(test)]
mod reasons;
#[cfg(test)]
mod shapes;
#[cfg(test)]
mod types;
#[cfg(test)]
mod values;
#[cfg(test)]
mod words;
