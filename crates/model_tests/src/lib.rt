//! Worked examples for the definitions of the model, by the plain programs whose contracts they are, and for the acts of the shipped
//! jobs.
#![tactic(auto)]

#[cfg(test)]
mod examples;
#[cfg(test)]
mod histories;
#[cfg(test)]
mod requests;
#[cfg(test)]
mod word_counts;
