//! A gate that makes workers wait for each other, and notes which turns they came with.

use routing_stages::Gate;
use std::hint::spin_loop;
use std::sync::atomic::{AtomicU64, Ordering};

/// How often a worker looks at most whether it may go on. Then it goes on in any case.
const LOOKS: u64 = 1 << 16;

/// Who waits, and for whom. A part ends with its last turn or, where that isn't known, as far as who waits has come in it.
#[derive(Clone, Copy, Drop)]
pub enum Order {
    /// Worker 0, until worker 1 is at the end of its part.
    FirstBehindSecond,
    /// Worker 1, until worker 0 is at the end of its part.
    SecondBehindFirst,
    /// Each worker, until it alone is in a turn: those before it have ended the same turn, and those behind it the one before.
    OneByOne,
    /// Each worker before every 32nd turn, until another one has come to the gate.
    Stretches,
    /// All workers, until all are at the gate at once for the first time: once in the phases, and once more in the rounds.
    Together,
}

/// The order of this name.
pub fn order_of(name: &str) -> Option<Order> {
    match name {
        "first behind second" => Some(Order::FirstBehindSecond),
        "second behind first" => Some(Order::SecondBehindFirst),
        "one by one" => Some(Order::OneByOne),
        "stretches" => Some(Order::Stretches),
        "together" => Some(Order::Together),
        _ => None,
    }
}

/// How far a worker came: how many parts it has begun, and its turn in the last one.
#[derive(Clone, Copy, Drop)]
struct Place {
    parts: u64,
    turn: u64,
}

/// Where a worker is noted, with the last turn of each of its whole parts.
#[derive(Drop)]
struct Seat {
    last: u64,
    parts: AtomicU64,
    turn: AtomicU64,
}

impl Seat {
    /// The seat of a worker that didn't come yet.
    fn new(lasts: &[u64], worker: usize) -> Seat {
        let last = match lasts.get(worker) {
            Some(last) => *last,
            None => 0,
        };
        Seat {
            last,
            parts: AtomicU64::new(0),
            turn: AtomicU64::new(0),
        }
    }

    /// The part is read first and noted last, so nobody is found further than it came.
    fn place(&self) -> Place {
        let parts = self.parts.load(Ordering::SeqCst);
        let turn = self.turn.load(Ordering::SeqCst);
        Place { parts, turn }
    }

    fn note(&self, place: Place) {
        self.turn.store(place.turn, Ordering::SeqCst);
        self.parts.store(place.parts, Ordering::SeqCst);
    }
}

/// A gate for two to four workers, with what it has seen.
#[derive(Drop)]
pub struct Schedule {
    order: Order,
    workers: u32,
    phases: u64,
    whole: u64,
    first: Seat,
    second: Seat,
    third: Seat,
    fourth: Seat,
    calls: AtomicU64,
    inside: AtomicU64,
    kept: AtomicU64,
    met_in_phases: AtomicU64,
    met_in_rounds: AtomicU64,
    wrong: AtomicU64,
}

impl Gate for Schedule {
    fn pass(&self, worker: u32, turn: u64) {
        let place = self.come(worker, turn);
        let calls = self.calls.fetch_add(1, Ordering::SeqCst).wrapping_add(1);
        self.inside.fetch_add(1, Ordering::SeqCst);
        if self.has_to_wait(worker, turn) && !self.may_go(worker, place, calls) {
            self.wait(worker, place, calls);
        }
        self.inside.fetch_sub(1, Ordering::SeqCst);
    }
}

impl Schedule {
    /// A gate that nobody came to, for as many workers as there are last turns. Each has a part in each of so many phases and,
    /// behind them, in rounds. Its first `whole` parts are of all nets and end with that turn; how long the others are isn't
    /// known.
    pub fn new(order: Order, lasts: &[u64], phases: u64, whole: u64) -> Option<Schedule> {
        let workers = u32::try_from(lasts.len()).ok()?;
        Some(Schedule {
            order,
            workers,
            phases,
            whole,
            first: Seat::new(lasts, 0),
            second: Seat::new(lasts, 1),
            third: Seat::new(lasts, 2),
            fourth: Seat::new(lasts, 3),
            calls: AtomicU64::new(0),
            inside: AtomicU64::new(0),
            kept: AtomicU64::new(0),
            met_in_phases: AtomicU64::new(0),
            met_in_rounds: AtomicU64::new(0),
            wrong: AtomicU64::new(0),
        })
    }

    /// Whether some worker had to look more than once, and could go on before it had looked too often.
    pub fn was_kept(&self) -> bool {
        self.kept.load(Ordering::SeqCst) > 0
    }

    /// Whether workers that wait for each other were all at the gate at once in a phase.
    pub fn met_in_phases(&self) -> bool {
        self.met_in_phases.load(Ordering::SeqCst) > 0
    }

    /// Whether they were so in a round.
    pub fn met_in_rounds(&self) -> bool {
        self.met_in_rounds.load(Ordering::SeqCst) > 0
    }

    /// Whether each call was of one of the workers, its turns went up by one from 0 in each of its parts, and each whole part ended
    /// with its last turn, where another one followed.
    pub fn was_called_in_turn(&self) -> bool {
        self.wrong.load(Ordering::SeqCst) == 0
    }

    /// Whether each worker has begun all its whole parts and, unless it began others behind them, has ended the last one.
    pub fn has_seen_whole(&self) -> bool {
        for worker in 0..self.workers {
            let seat = self.seat(worker);
            let place = seat.place();
            if place.parts < self.whole || place.parts == self.whole && place.turn != seat.last {
                return false;
            }
        }
        true
    }

    /// Whether some worker has begun more parts than the whole ones.
    pub fn has_seen_more(&self) -> bool {
        for worker in 0..self.workers {
            if self.seat(worker).place().parts > self.whole {
                return true;
            }
        }
        false
    }

    fn seat(&self, worker: u32) -> &Seat {
        match worker {
            0 => &self.first,
            1 => &self.second,
            2 => &self.third,
            _ => &self.fourth,
        }
    }

    /// Notes that a worker came, and answers its place.
    fn come(&self, worker: u32, turn: u64) -> Place {
        let seat = self.seat(worker);
        let before = seat.place();
        if worker >= self.workers || !self.follows(seat, before, turn) {
            self.wrong.fetch_add(1, Ordering::SeqCst);
        }
        let parts = if turn == 0 {
            before.parts.wrapping_add(1)
        } else {
            before.parts
        };
        let place = Place { parts, turn };
        seat.note(place);
        place
    }

    /// Whether a turn of a worker may follow this place.
    fn follows(&self, seat: &Seat, before: Place, turn: u64) -> bool {
        if turn == 0 {
            before.parts == 0 || before.parts > self.whole || before.turn == seat.last
        } else {
            before.parts > 0 && before.turn.wrapping_add(1) == turn
        }
    }

    fn has_to_wait(&self, worker: u32, turn: u64) -> bool {
        match self.order {
            Order::FirstBehindSecond => worker == 0,
            Order::SecondBehindFirst => worker == 1,
            Order::OneByOne => true,
            Order::Stretches => turn % 32 == 0,
            Order::Together => true,
        }
    }

    /// Returns when the worker, which had to wait when it first looked, may go on, or has looked often enough.
    fn wait(&self, worker: u32, place: Place, calls: u64) {
        for _ in 0..LOOKS {
            spin_loop();
            if self.may_go(worker, place, calls) {
                self.kept.fetch_add(1, Ordering::SeqCst);
                return;
            }
        }
    }

    /// Whether a worker that came to this place, as the last of so many calls, may go on.
    fn may_go(&self, worker: u32, place: Place, calls: u64) -> bool {
        match self.order {
            Order::FirstBehindSecond => self.has_ended(1, place),
            Order::SecondBehindFirst => self.has_ended(0, place),
            Order::OneByOne => self.is_next(worker, place),
            Order::Stretches => self.calls.load(Ordering::SeqCst) != calls,
            Order::Together => self.meets(place),
        }
    }

    /// Whether a worker has come to this turn of the part with this number, or to the last one where that is known to be earlier.
    fn has_come(&self, worker: u32, parts: u64, turn: u64) -> bool {
        let seat = self.seat(worker);
        let place = seat.place();
        let due = if parts <= self.whole {
            turn.min(seat.last)
        } else {
            turn
        };
        place.parts > parts || place.parts == parts && place.turn >= due
    }

    /// Whether a worker is at the end of the part that another one is in.
    fn has_ended(&self, worker: u32, place: Place) -> bool {
        let turn = if place.parts <= self.whole {
            u64::MAX
        } else {
            place.turn
        };
        self.has_come(worker, place.parts, turn)
    }

    /// Whether the turn of this worker at this place is the next one: all others have come as far as they come before it.
    fn is_next(&self, worker: u32, place: Place) -> bool {
        for other in 0..self.workers {
            let due = if other < worker {
                place.turn.wrapping_add(1)
            } else {
                place.turn
            };
            if !self.has_come(other, place.parts, due) {
                return false;
            }
        }
        true
    }

    /// Whether all workers are at the gate at once, or were.
    fn meets(&self, place: Place) -> bool {
        let met = if place.parts > self.phases {
            &self.met_in_rounds
        } else {
            &self.met_in_phases
        };
        if self.inside.load(Ordering::SeqCst) >= u64::from(self.workers) {
            met.fetch_add(1, Ordering::SeqCst);
        }
        met.load(Ordering::SeqCst) > 0
    }
}
