//! Journals that refuse: what a refused call, receipt or release answers, and that the journal goes on as if it had not
//! been asked.
#![tactic(auto)]

#[cfg(test)]
mod again;
#[cfg(test)]
mod asked;
#[cfg(test)]
mod causes;
#[cfg(test)]
mod rounds;
