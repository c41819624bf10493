// Days in, over each crew: the jobs that were started, what was written, kept and answered.
mod counted_crew;
mod crews;
mod days;
mod hour;
mod importing;
mod imports;
mod jobs;
mod marked;
mod offices;
mod slow;
mod threads;
