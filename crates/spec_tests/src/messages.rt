// Messages and answers: vectors of the definitions, laws, and worked cases that no run of the
// program shows.
mod directories;
mod encoding;
mod framing;
mod further;
mod further_replies;
mod negotiation;
mod records;
mod replies;
mod requests;
mod wire;
