//! Runs of the top call over folders in memory: the bytes that they leave, what they print, and what crashes leave of them.
#![tactic(auto)]

#[cfg(test)]
mod configurations;
#[cfg(test)]
mod crashes;
#[cfg(test)]
mod examples;
#[cfg(test)]
mod orders;
#[cfg(test)]
mod runs;
#[cfg(test)]
mod several;
#[cfg(test)]
mod steps;
#[cfg(test)]
mod texts;
