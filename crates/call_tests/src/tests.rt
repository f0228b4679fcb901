// The tables.
mod calls;
mod foreign;
mod lines;
mod receipts;
mod refusals;
