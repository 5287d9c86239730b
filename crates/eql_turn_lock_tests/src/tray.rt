//! A tray of letters: the first caller puts letters in, and every caller takes them out.
use eql_turn_lock::Turned;
use std::collections::VecDeque;

/// The letters, in the order in which they came. A tray has the room that it was made with.
#[derive(Drop)]
pub struct Tray {
    pub letters: VecDeque<u32>,
}

#[derive(Drop)]
pub enum TrayOp {
    /// Puts a letter behind the others. The tray must have room.
    Deliver { letter: u32 },
    /// Takes the first letter, if there is one.
    Take,
}

#[derive(Drop)]
pub enum TrayReply {
    Delivered,
    Taken { letter: Option<u32> },
}

impl Tray {
    ghost use Rattle.std.specs.Prelude.{◌≡◌, ◌+◌, ◌<◌, ◌++◌, [], ◌∷◌};
    ghost use Rattle.std.specs.VecDeque.{deque_len, deque_capacity};

    fn put(&mut self, letter: u32) -> TrayReply
        requires { deque_len self.old.letters < deque_capacity self.old.letters }
        ensures reply { result ≡ TrayReply.Delivered }
        ensures letters { self.new.letters.items ≡ self.old.letters.items ++ letter ∷ [] }
        ensures len { deque_len self.new.letters ≡ deque_len self.old.letters + 1 }
        ensures room { deque_capacity self.new.letters ≡ deque_capacity self.old.letters }
    {
        let Ok(()) = self.letters.push_back(letter) else {
            unreachable!()
        };
        TrayReply::Delivered
    }
}

impl Turned for Tray {
    ghost use Rattle.eql_turn_lock_tests.specs.Trays.{TrayAllows, IsTrayStep, tray_open, tray_idle, tray_opens, tray_stays_allowed};

    type Op = TrayOp;

    type Reply = TrayReply;

    ghost allows = { TrayAllows };

    ghost step_of = { IsTrayStep };

    ghost is_open = { tray_open };

    ghost is_idle = { tray_idle };

    fn play(&mut self, op: TrayOp) -> TrayReply {
        match op {
            TrayOp::Deliver { letter } => self.put(letter),
            TrayOp::Take => TrayReply::Taken {
                letter: self.letters.pop_front(),
            },
        }
    }

    fn idles(reply: &TrayReply) -> bool {
        matches!(reply, TrayReply::Taken { letter: None })
    }

    ghost opens = { tray_opens };

    ghost stays_allowed = { tray_stays_allowed };
}
