// The words of the programs, and the doors and acceptors of the server.
mod acceptors;
mod command_words;
mod doors;
mod fronts;
mod keepers;
mod serving;
mod serving_words;
mod shared_keepers;
