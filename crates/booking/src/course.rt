// Where a program stands in its segment, with what it was asked and what it has read.

/// A trip as a client opens it.
#[derive(Clone, Copy, Debug, PartialEq, Eq)]
pub struct NewTrip {
    pub trip: u32,
    pub cap: u32,
    pub price: u32,
    pub link: u32,
}

#[derive(Clone, Copy, Debug, PartialEq, Eq)]
pub enum OpenPlace {
    Begins,
    HasCap,
    PutsPrice,
    PutsLink,
    Opened,
}

/// A booking as a client asks for it.
#[derive(Clone, Copy, Debug, PartialEq, Eq)]
pub struct NewBooking {
    pub client: u8,
    pub booking: u32,
    pub trip: u32,
    pub qty: u32,
}

#[derive(Clone, Copy, Debug, PartialEq, Eq)]
pub enum BookPlace {
    Begins,
    HasCap,
    HasCount { cap: u64 },
    HasLink { cap: u64, count: u64 },
    HasLive { cap: u64, count: u64, link: u64 },
    HasLinkCap(TripState),
    HasLinkCount { state: TripState, link_cap: u64 },
}

/// Where the writes of a booking stand.
#[derive(Clone, Copy, Debug, PartialEq, Eq)]
pub enum EntryPlace {
    PutsLinkCount { state: TripState, link_count: u64 },
    PutsLive { live: u64 },
    PutsStatus,
    PutsTrip,
    PutsQty,
    Reserves,
}

/// What a booking reads of its trip and its client.
#[derive(Clone, Copy, Debug, PartialEq, Eq)]
pub struct TripState {
    pub cap: u64,
    pub count: u64,
    pub link: u64,
    pub live: u64,
}

/// The call whose answer a booking goes on with.
#[derive(Clone, Copy, Debug, PartialEq, Eq)]
pub enum Asked {
    Reserve,
    Charge,
}

/// Seats that are given back.
#[derive(Clone, Copy, Debug, PartialEq, Eq)]
pub struct Return {
    pub client: u8,
    pub trip: u32,
    pub qty: u64,
    pub after: AfterReturn,
}

/// What is done once the seats are given back.
#[derive(Clone, Copy, Debug, PartialEq, Eq)]
pub enum AfterReturn {
    Release,
    Clear { booking: u32, closing: Closing },
}

#[derive(Clone, Copy, Debug, PartialEq, Eq)]
pub enum ReturnPlace {
    HasCount,
    HasLink {
        count: u64,
    },
    HasLive {
        count: u64,
        link: u64,
    },
    HasLinkCount {
        count: u64,
        link: u64,
        live: u64,
    },
    PutsLinkCount {
        link: u64,
        link_count: u64,
        live: u64,
    },
    PutsLive {
        live: u64,
    },
}

/// The reply to a request whose booking is cleared.
#[derive(Clone, Copy, Debug, PartialEq, Eq)]
pub enum Closing {
    NoStock,
    Declined,
    Cancelled,
}

#[derive(Clone, Copy, Debug, PartialEq, Eq)]
pub enum ClearPlace {
    Status,
    Trip,
    Qty,
    Closes,
}

/// A booking that a client looks at or cancels.
#[derive(Clone, Copy, Debug, PartialEq, Eq)]
pub struct View {
    pub client: u8,
    pub booking: u32,
    pub cancels: bool,
}

#[derive(Clone, Copy, Debug, PartialEq, Eq)]
pub enum ViewPlace {
    Begins,
    HasStatus,
    HasTrip { status: u64 },
    HasQty { status: u64, trip: u64 },
    HasPrice { qty: u64 },
    Refunds { amount: u64 },
}

/// A booking that is being cancelled, after its refund and after its release.
#[derive(Clone, Copy, Debug, PartialEq, Eq)]
pub struct Recall {
    pub client: u8,
    pub booking: u32,
    pub released: bool,
}

#[derive(Clone, Copy, Debug, PartialEq, Eq)]
pub enum RecallPlace {
    Begins,
    HasTrip,
    HasQty { trip: u64 },
    HasLink { trip: u64, qty: u64 },
    HasCount { trip: u64, qty: u64, link: u64 },
}

/// What a program is at, and where in it.
#[derive(Clone, Copy, Debug, PartialEq, Eq)]
pub enum Course {
    Opens(NewTrip, OpenPlace),
    Books(NewBooking, BookPlace),
    Enters(NewBooking, EntryPlace),
    Answers(NewBooking, Asked),
    Charges(NewBooking),
    Booked {
        booking: u32,
    },
    Returns(Return, ReturnPlace),
    Clears {
        booking: u32,
        closing: Closing,
        place: ClearPlace,
    },
    Releases {
        trip: u32,
        qty: u64,
        stage: u8,
    },
    Views(View, ViewPlace),
    Recalls(Recall, RecallPlace),
}
