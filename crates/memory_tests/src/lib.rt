// Tests of the slot memories by behaviour: each is a table of operations with the replies that the
// rules give, run over both memories, on words and on visits. There is nothing here but tests.
#![tactic(auto)]

#[cfg(test)]
mod table;
#[cfg(test)]
mod tests;
