// Trials that are the same for every store, run on each of them.
#![tactic(auto)]

#[cfg(test)]
mod asking;
#[cfg(test)]
mod building;
#[cfg(test)]
mod nodes;
#[cfg(test)]
mod refusing;
#[cfg(test)]
mod stores;
