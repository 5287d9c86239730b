//! The value under a turn lock: what may be done with it, and by whom.
ghost use Rattle.std.specs.Prelude.{◌≡◌, Bool, true};

/// A value that answers operations, one at a time.
///
/// The first pass of a lock may play every operation that the value allows. The other passes play
/// the operations that are open, which are allowed always and take no leave from others.
pub trait Turned {
    /// What is asked of the value.
    type Op;

    /// What it answers.
    type Reply;

    /// The condition of `play`, on the value before and the operation.
    ghost allows: { Self → Self.Op → Type 0 };

    /// What `play` then meets: the value before, the operation, the reply and the value after.
    ghost step_of: { Self → Self.Op → Self.Reply → Self → Type 0 };

    /// Whether the operation is open to all passes.
    ghost is_open: { Self.Op → Bool };

    /// Whether a reply says that nothing was to be done. While such a reply is the last one,
    /// whoever would ask the same need not take the turn.
    ghost is_idle: { Self.Reply → Bool };

    /// Plays one operation on the value.
    fn play(&mut self, op: Self::Op) -> Self::Reply
        requires { allows self.old op }
        ensures { step_of self.old op result self.new };

    /// Tells whether the reply is idle.
    fn idles(reply: &Self::Reply) -> bool
        ensures { result ≡ is_idle reply.now };

    // An open operation is allowed in every state.
    ghost opens: { (x : Self) (op : Self.Op) → is_open op ≡ true → allows x op };

    // After a step of an open operation all is allowed that was allowed before it.
    ghost stays_allowed: { (x y : Self) (op later : Self.Op) (reply : Self.Reply)
        → is_open op ≡ true → step_of x op reply y → allows x later → allows y later };
}
