// Where the job of a ticket is.

use ways_expressway::{Done, Job};

/// Where the job of a ticket is: in the cell of the ticket's number, or what was done of it lies here, or it
/// could not be listed, is not run, and lies here itself.
#[derive(Drop)]
pub enum TicketPlace {
    Cell,
    Ran(Done),
    Unlisted(Job),
}
