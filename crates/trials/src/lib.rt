// Trials of tables and files through their public calls, on good and damaged inputs.
#![tactic(auto)]

#[cfg(test)]
mod documents;
#[cfg(test)]
mod lists;
#[cfg(test)]
mod tables;
