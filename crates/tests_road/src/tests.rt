// Lines, lists and single calls in, answers out: of the rules, of the parts that an import joins, each by itself, and of
// what is kept and stated of days.
mod amounts;
mod averages;
mod books;
mod bytes;
mod carriages;
mod crews;
mod days;
mod digests;
mod gates;
mod generated;
mod histories;
mod jobs;
mod keepers;
mod lines;
mod reading;
mod records;
mod roads;
mod rules;
mod shards;
mod standing;
mod statements;
mod stays;
mod stops;
mod tariffs;
