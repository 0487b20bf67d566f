// Trials of the session, on good and damaged documents.
#![tactic(auto)]

#[cfg(test)]
mod sessions;
