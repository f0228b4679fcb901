// Tests of the dock by behaviour: each is a table of calls with the answers that the rules give, run
// over both memories, on words and on visits. There is nothing here but tests.
#![tactic(auto)]

#[cfg(test)]
mod bench;
#[cfg(test)]
mod elements;
#[cfg(test)]
mod judge;
#[cfg(test)]
mod session;
#[cfg(test)]
mod table;
#[cfg(test)]
mod tests;
