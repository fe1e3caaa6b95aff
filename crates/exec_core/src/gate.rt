// What is called round each step of a segment.
ghost use Rattle.std.specs.Prelude.{◌≡◌};
ghost use Rattle.exec_core.specs.Gates.{limit_of};

use std::sync::atomic::AtomicU64;
use std::sync::atomic::Ordering::SeqCst;

/// Is told of each step, outside every lock.
pub trait Gate {
    fn before(&self, seg: u8, step: u16);

    fn after(&self, seg: u8, step: u16);
}

/// Lets every step pass.
#[derive(Debug, Drop)]
pub struct OpenGate;

impl Gate for OpenGate {
    fn before(&self, _seg: u8, _step: u16) {}

    fn after(&self, _seg: u8, _step: u16) {}
}

/// Holds segment 0 after its first step until segment 1 has made one, for at most so many turns: so it tells whether the
/// two were at work at once.
#[derive(Drop)]
pub struct CrossGate {
    limit: u32,
    stepped: AtomicU64,
    crossed: AtomicU64,
}

impl CrossGate {
    pub fn new(limit: u32) -> Self
        ensures { limit_of result ≡ limit }
    {
        CrossGate {
            limit,
            stepped: AtomicU64::new(0),
            crossed: AtomicU64::new(0),
        }
    }

    /// Whether segment 1 made a step while segment 0 was held.
    pub fn met(&self) -> bool {
        self.crossed.load(SeqCst) > 0
    }

    fn hold(&self) {
        for _ in 0..self.limit {
            if self.stepped.load(SeqCst) > 0 {
                self.crossed.store(1, SeqCst);
                return;
            }
        }
    }
}

impl Gate for CrossGate {
    fn before(&self, _seg: u8, _step: u16) {}

    fn after(&self, seg: u8, step: u16) {
        if seg == 1 {
            self.stepped.store(1, SeqCst);
        }
        if seg == 0 && step == 0 {
            self.hold();
        }
    }
}
