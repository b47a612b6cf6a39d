// The order in which rules and classifiers are preferred (document 01, "Choosing and judging").
//
// Two public functions. `is_better` takes any best so far, or none yet, and any priority and number, and says whether
// the greater priority, among equals the smaller number, is theirs. `best_place` looks through a slice of anything for the
// best item that passes: the caller hands over what tells an item's priority and number, and what tells whether it passes.
// An item is tested only where it would be the best so far, since a test costs more than a rank. Nothing is written.
#![tactic(auto)]

ghost use Rattle.std.specs.Prelude.{◌≡◌, ℕ, Bool, length};
ghost use Rattle.order.specs.Best.{is_better, best_place, within, Ranks, Tells};

// The best of the places that were looked at, with its priority and number.
#[derive(Clone, Copy)]
pub struct Best {
    pub place: usize,
    pub priority: u8,
    pub number: u16,
}

// Whether this priority and number come before those of the best so far, or there is none so far.
pub fn is_better(best: Option<Best>, priority: u8, number: u16) -> bool
    ensures { result ≡ is_better best priority number }
{
    match best {
        None => true,
        Some(best) => (best.priority, number) < (priority, best.number),
    }
}

// The place of the best item that passes: the greatest priority, among equals the smallest number, then the first.
pub fn best_place<T, R: Fn(&T) -> (u8, u16), P: Fn(&T) -> bool>(
    items: &[T],
    rank: R,
    passes: P,
) -> Option<usize>
    requires ranks { R.IsAlwaysCallable rank }
    requires tests { P.IsAlwaysCallable passes }
    ensures { (pr nu : T → ℕ) (ok : T → Bool) → Ranks R.Fn rank pr nu items.now → Tells P.Fn passes ok items.now
        → result ≡ within (length items.now) (best_place pr nu ok items.now) }
{
    let mut best: Option<Best> = None;
    for (place, item) in items.iter().enumerate() {
        let (priority, number) = rank(item);
        if is_better(best, priority, number) && passes(item) {
            best = Some(Best {
                place,
                priority,
                number,
            });
        }
    }
    best.map(|best| best.place)
}
