// Requests in, answers out.
mod boards;
mod desk;
mod replies;
mod requests;
