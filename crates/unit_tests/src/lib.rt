// Worked examples of units and of calls played on them, each proved to be safe and then run.
#![tactic(auto)]

#[cfg(test)]
mod examples;
#[cfg(test)]
mod replays;
#[cfg(test)]
mod silent;
#[cfg(test)]
mod units;
