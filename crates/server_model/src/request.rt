// What a client can ask.

/// A request of the booking service. Its texts are `open TRIP CAP PRICE LINK`, `book TRIP QTY`, `cancel BOOKING` and
/// `look BOOKING`. A link of 0 is none.
#[derive(Clone, Copy, Debug, PartialEq, Eq)]
pub enum Request {
    Open {
        trip: u32,
        cap: u32,
        price: u32,
        link: u32,
    },
    Book {
        trip: u32,
        qty: u32,
    },
    Cancel {
        booking: u32,
    },
    Look {
        booking: u32,
    },
}
