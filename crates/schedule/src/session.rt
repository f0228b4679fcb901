// A dock with what its caller keeps for a text.
ghost use Rattle.std.specs.Prelude.{◌≡◌, replicate, slice_index, slice_set};
ghost use Rattle.board.specs.Kinds.{kind_of, meaning_of};
ghost use Rattle.dock.specs.Does.{shut_state};
ghost use Rattle.schedule.specs.Sessions.{game_of};

use crate::Response;
use board::Board;
use dock::{Book, Dock};
use slot_memory::{BAYS, Bay};

mod calls;
mod ended;
mod obey;

/// A dock, and what its caller keeps: the trays and the book that calls are handed, and the serials.
#[derive(Drop)]
pub(crate) struct Session<'a> {
    dock: Dock<Board<'a, u32>>,
    trays: Vec<u32>,
    book: Book<'a, u32>,
    /// For each bay the serial of its last started call; 0 before the first, which collect and leave then ask for.
    // An array beside the trays, which the dock is lent as a row; and no `Option`, since a text without a call asks for 0.
    last: [u32; BAYS as usize],
}

impl<'a> Session<'a> {
    /// A dock that was never opened over this board, with an empty book.
    pub(crate) fn new(board: Board<'a, u32>, trays: Vec<u32>, row: &'a mut [u32]) -> Session<'a>
        ensures game { game_of result ≡ record { kind = kind_of board.entry; world = record { dock = shut_state; memory = meaning_of board.entry; trays = trays.items; book = record { row = row.old; entered = 0 } } } }
        ensures last { result.last ≡ replicate 16 0 }
    {
        Session {
            dock: Dock::new(board),
            trays,
            book: Book { row, entered: 0 },
            last: [0; BAYS as usize],
        }
    }

    // The element in the bay's tray; 0 where there is none, as the definition has it.
    fn tray(&self, bay: Bay) -> u32
        ensures { result ≡ slice_index self.now.trays.items bay }
    {
        self.trays.get(bay as usize).copied().unwrap_or(0)
    }

    // The serial of the bay's last started call.
    fn serial(&self, bay: Bay) -> u32
        ensures { result ≡ slice_index self.now.last bay }
    {
        self.last.get(bay as usize).copied().unwrap_or(0)
    }

    // Notes the serial of a call that was started.
    fn note(&mut self, bay: Bay, serial: u32) -> Response
        ensures response { result ≡ Response.Call serial }
        ensures session { self.new ≡ record self.old { last = slice_set self.old.last bay serial } }
    {
        // No `get_mut`: its contract leaves open what an array holds afterwards.
        if (bay as usize) < self.last.len() {
            self.last[bay as usize] = serial;
        }
        Response::Call(serial)
    }
}
