// Worked examples of settings, of what messages ask for, of changes and of answers, each proved to be safe and then run.
#![tactic(auto)]

#[cfg(test)]
mod answers;
#[cfg(test)]
mod flags;
#[cfg(test)]
mod images;
#[cfg(test)]
mod messages;
#[cfg(test)]
mod outputs;
#[cfg(test)]
mod served;
#[cfg(test)]
mod values;
