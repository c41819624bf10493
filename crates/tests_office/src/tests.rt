// Words, a source and an aside in, a sink's text and a status out, where something fails or little is allowed.
mod asking;
mod audits;
mod causes;
mod checks;
mod days;
mod faults;
mod input;
mod listings;
mod renewals;
mod runs;
mod waiting;
