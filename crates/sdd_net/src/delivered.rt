use sdd_receiver::Parcels;

/// What a delivery did.
#[derive(Drop)]
pub enum Delivered<M> {
    /// The place is past the flight's end, and nothing changed.
    Nothing,
    /// An acknowledgement arrived.
    Acked,
    /// A message packet arrived, and these messages are handed to the site, in order.
    Messages(Parcels<M>),
}
