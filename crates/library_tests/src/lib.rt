// Worked examples of the libraries, each proved to be safe and then run.
#![tactic(auto)]

#[cfg(test)]
mod frames;
#[cfg(test)]
mod messages;
#[cfg(test)]
mod texts;
