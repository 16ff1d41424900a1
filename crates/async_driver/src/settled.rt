//! A lock's future as a `Future`.

ghost use Rattle.std.specs.Prelude.{◌≡◌, ℕ, ⊤, IfOk, IfErr};
ghost use Rattle.futures.specs.Task.{Covers, Keeps};
ghost use Rattle.async_driver.specs.Turns.{OnPending, OnReady, OnRefused};
ghost use Rattle.async_driver.specs.declared.turn.Turn.{Turn as Answer};
ghost use Rattle.lock_program.specs.declared.refusal.Refusal.{Refusal as Refused};

use crate::turn::Turn;
use futures::Future;
use futures::task::{Context, Poll};
use lock_program::Refusal;

/// A named future of a lock, polled for a [`Turn`].
pub trait Polled: Drop {
    /// What the future is for.
    type Got;

    /// What a poll needs of the future.
    ghost can_poll: { Self → Type 0 } = { λ _. ⊤ };

    /// What the future may give.
    ghost gives: { Self → Self.Got → Type 0 } = { λ _ _. ⊤ };

    /// With which names the future may refuse.
    ghost refuses: { Self → Refused → Type 0 } = { λ _ _. ⊤ };

    /// How a poll goes on with what the future has: by which seat, say.
    ghost goes_on: { Self → Answer Self.Got → Self → Type 0 } = { λ _ _ _. ⊤ };

    /// One poll. Pending, it has registered with a source that covers the task. What it gives, and how it refuses, is what it gave
    /// promise of before.
    fn poll_turn(&mut self, cx: &mut Context<'_>) -> Turn<Self::Got>
        requires { can_poll self.old }
        ensures again { can_poll self.new }
        ensures got { OnReady result (gives self.old) }
        ensures refused { OnRefused result (refuses self.old) }
        ensures on { goes_on self.old result self.new }
        ensures same { OnPending result ((got : Self.Got) → gives self.new got → gives self.old got) }
        ensures same_refusals { OnPending result ((refusal : Refused) → refuses self.new refusal → refuses self.old refusal) }
        ensures registered { OnPending result (Covers cx.new (λ _. ⊥)) }
        ensures kept { Keeps cx.old cx.new };
}

/// Makes a named future a [`Future`], of what it is for or a refusal.
#[derive(Debug, Drop)]
pub struct Settled<F>(pub F);

impl<F: Polled> Future for Settled<F> {
    type Output = Result<F::Got, Refusal>;

    ghost can_poll = { λ s. F.can_poll s.0 };

    ghost gives = { λ s result. IfOk result (F.gives s.0) × IfErr result (F.refuses s.0) };

    fn poll(&mut self, cx: &mut Context<'_>) -> Poll<Result<F::Got, Refusal>> {
        match self.0.poll_turn(cx) {
            Turn::Pending => Poll::Pending,
            Turn::Ready(got) => Poll::Ready(Ok(got)),
            Turn::Refused(refusal) => Poll::Ready(Err(refusal)),
        }
    }
}
