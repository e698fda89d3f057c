//! Between the queue that threads share and the queue as a value.
ghost use Rattle.std.specs.Prelude.{◌≡◌, ℕ, ◌<◌, [], ◌∷◌};
ghost use Rattle.crossbeam_queue.specs.Fifo.{Pushes, Pops, Forks, Merges};
ghost use Rattle.rv_model.specs.Image.{Img};
ghost use Rattle.job_queue.specs.Rule.{whole, blank, spent, with_pushed, with_taken, less_one, one_of, joined};
ghost use Rattle.job_queue.specs.declared.rule.View.{View};
ghost use Rattle.job_queue.specs.declared.ticket.Ticket.{Ticket};
ghost use Rattle.queue_events.specs.Laws.{PushLaw, FullLaw, PopLaw, EmptyLaw, SplitLaw, JoinLaw, KeepLaw, NewLaw, BeginLaw, BalanceLaw, IsLed};

/// Where a moment stands for a value of the core, each atomic step of the queue leads to a moment that stands for what an event
/// makes of the value, or the event is refused and nothing changes: the steps of `JobQueue`'s calls, and of making a queue.
pub fn each_step_is_an_event()
    ensures push { PushLaw }
    ensures full { FullLaw }
    ensures pop { PopLaw }
    ensures empty { EmptyLaw }
    ensures split { SplitLaw }
    ensures join { JoinLaw }
    ensures keep { KeepLaw }
    ensures new { NewLaw }
    ensures begin { BeginLaw }
    ensures balance { BalanceLaw }
{}

/// Events lead from a new core to whatever moment such steps lead to. It is said as `crossbeam_queue` asks it of a rule: it holds
/// of a new queue, and each step keeps it.
pub fn each_moment_is_led_to()
    ensures new { (capacity : ℕ) → IsLed capacity [] (blank ∷ []) }
    ensures begin { (capacity port shares : ℕ) (image : Img) → 0 < shares → Forks (IsLed capacity) port blank (whole image shares) spent }
    ensures push { (capacity port : ℕ) (v : View) (t : Ticket) → 0 < v.shares → Pushes (IsLed capacity) capacity port v t (λ w. w ≡ with_pushed v t) }
    ensures pop { (capacity port : ℕ) (v : View) → 0 < v.shares → Pops (IsLed capacity) port v (λ t w. w ≡ with_taken v t) }
    ensures split { (capacity port : ℕ) (v : View) → 1 < v.shares → Forks (IsLed capacity) port v (less_one v) (one_of v) }
    ensures join { (capacity port other : ℕ) (v w : View) → 0 < v.shares → 0 < w.shares → Merges (IsLed capacity) port v other w (joined v w) spent }
{}
