//! How a text repeats itself. A search that compared a text and met a difference passes over the places where
//! the characters that met would have to repeat themselves. A text that repeats four times or more at its
//! beginning makes a run, and few runs tell of all (after Galil and Seiferas, Saving Space in Fast
//! String-Matching, SIAM Journal on Computing 9, 1980). So a search takes time in proportion to both texts,
//! and no memory but a table of fixed size.
ghost use Rattle.std.specs.Prelude.{◌≡◌, ◌≤◌, ◌<◌, ◌+◌, ◌-◌, ◌*◌, ◌∷◌, ◌++◌, ◌^◌, ℕ, List, [], true, false, length, drop, IfSome, MatchOption};
ghost use Rattle.std.specs.Option.{is_some};
ghost use Rattle.std.specs.Str.{chars};
ghost use Rattle.eql_text.specs.Repeats.{seen_text, period_at, listed_runs, move_by, kept_count, IsKnown, Meets, Stops, IsEnding, IsLaid, IsNoted};

use crate::walk::{first_char, last_char, same, skip};

/// First characters of a text that repeat a period four times or more.
#[derive(Clone, Copy)]
pub struct Run {
    /// The least period.
    pub period: usize,
    /// Four periods: the least number of characters that the run holds.
    pub from: usize,
    /// The greatest number of characters that the run holds.
    pub reach: usize,
}

/// How many runs there is room for. The period of each is three times that of the one before or more, so that
/// only a text of more than fifty million characters has more. Places beyond are then passed one by one.
const ROOM: usize = 16;

/// The runs of a text.
#[derive(Drop)]
pub struct Runs {
    runs: [Run; ROOM],
    count: usize,
    /// The runs tell of all places below this at which the text repeats itself.
    below: usize,
}

/// A text laid over another from a place on, and compared so far.
#[derive(Clone, Copy)]
pub struct Laid<'s, 't> {
    /// The other text from the place on.
    pub window: &'s str,
    /// What follows in it where the comparison goes on.
    pub ahead: &'s str,
    /// What follows there in the text that is laid over it.
    pub left: &'t str,
    /// How many characters were passed in both.
    pub met: usize,
}

impl<'s, 't> Laid<'s, 't> {
    /// A text laid over the beginning of another, and not yet compared.
    pub fn at(window: &'s str, t: &'t str) -> Laid<'s, 't>
        ensures laid { IsLaid t.now result.window.now result.ahead.now result.left.now 0 }
        ensures window { result.window.now ≡ window.now }
        ensures met { result.met ≡ 0 }
    {
        Laid {
            window,
            ahead: window,
            left: t,
            met: 0,
        }
    }
}

/// How far a text that was compared is moved on.
#[derive(Clone, Copy)]
pub struct Step {
    /// How many places, 1 at least.
    pub by: usize,
    /// How many of its first characters meet there without another look.
    pub kept: usize,
}

/// The period of the first run that holds this many characters.
fn period_at(runs: &[Run], met: usize) -> Option<usize>
    ensures { result ≡ period_at runs.now met }
{
    for run in runs {
        if run.from <= met && met <= run.reach {
            return Some(run.period);
        }
    }
    None
}

/// The end of a text that begins this many characters before another end of it.
fn back<'t>(text: &'t str, rest: &'t str, count: usize) -> &'t str
    requires ending { IsEnding text.now rest.now }
    requires enough { count + length (chars rest.now) ≤ length (chars text.now) }
    ensures ending { IsEnding text.now result.now }
    ensures rest { chars result.now
        ≡ drop (length (chars text.now) - length (chars rest.now) - count) (chars text.now) }
{
    let mut front = &text[..text.len() - rest.len()];
    for place in 0..count {
        let Some((before, _)) = last_char(front) else {
            return text;
        };
        front = before;
    }
    &text[front.len()..]
}

/// Compares on, until one text ends or two characters differ.
pub fn meet<'s, 't>(t: &'t str, laid: Laid<'s, 't>, fold: bool) -> Laid<'s, 't>
    requires laid { IsLaid t.now laid.window.now laid.ahead.now laid.left.now laid.met }
    requires meets { Meets (seen_text fold (chars laid.window.now))
        (seen_text fold (chars t.now)) laid.met }
    ensures laid { IsLaid t.now laid.entry.window.now result.ahead.now result.left.now result.met }
    ensures window { result.window.now ≡ laid.entry.window.now }
    ensures meets { Meets (seen_text fold (chars laid.entry.window.now))
        (seen_text fold (chars t.now)) result.met }
    ensures stops { Stops (seen_text fold (chars laid.entry.window.now))
        (seen_text fold (chars t.now)) result.met }
{
    let mut ahead = laid.ahead;
    let mut left = laid.left;
    let mut met = laid.met;
    while let Some((d, after_left)) = first_char(left) {
        let Some((c, after)) = first_char(ahead) else {
            break;
        };
        if !same(c, d, fold) {
            break;
        }
        ahead = after;
        left = after_left;
        met += 1;
    }
    Laid {
        window: laid.window,
        ahead,
        left,
        met,
    }
}

/// Moves a text on, where the other one has so many places left.
pub fn move_on<'s, 't>(t: &'t str, laid: Laid<'s, 't>, step: Step) -> Option<Laid<'s, 't>>
    requires laid { IsLaid t.now laid.window.now laid.ahead.now laid.left.now laid.met }
    requires kept { 0 < step.kept → step.kept + step.by ≡ laid.met }
    ensures enough { MatchOption result
        (length (chars laid.entry.window.now) < step.by)
        (λ next. step.by ≤ length (chars laid.entry.window.now)) }
    ensures laid { IfSome result
        (λ next. IsLaid t.now next.window.now next.ahead.now next.left.now next.met) }
    ensures window { IfSome result
        (λ next. chars next.window.now ≡ drop step.by (chars laid.entry.window.now)) }
    ensures met { IfSome result (λ next. next.met ≡ step.kept) }
    ensures shorter { IfSome result
        (λ next. step.by + length next.window.now ≤ length laid.entry.window.now) }
{
    let window = skip(laid.window, step.by as u64)?;
    if step.kept == 0 {
        return Some(Laid::at(window, t));
    }
    Some(Laid {
        window,
        ahead: laid.ahead,
        left: back(t, laid.left, step.by),
        met: step.kept,
    })
}

impl Runs {
    /// A table with nothing in it.
    fn new() -> Runs
        ensures listed { listed_runs result ≡ [] }
        ensures below { result.below ≡ 1 }
        ensures room { result.count ≤ 16 }
    {
        let none = Run {
            period: 0,
            from: 0,
            reach: 0,
        };
        Runs {
            runs: [none; ROOM],
            count: 0,
            below: 1,
        }
    }

    /// The runs in it.
    fn list(&self) -> &[Run]
        requires { self.now.count ≤ 16 }
        ensures { result.now ≡ listed_runs self.now }
    {
        &self.runs[..self.count]
    }

    /// Puts one more run at the end.
    fn push(&mut self, run: Run)
        requires { self.old.count < 16 }
        ensures listed { listed_runs self.new ≡ listed_runs self.old ++ run ∷ [] }
        ensures below { self.new.below ≡ self.old.below }
        ensures room { self.new.count ≤ 16 }
    {
        self.runs[self.count] = run;
        self.count += 1;
    }

    /// Writes down that so many characters met, and no more, when the text was laid over itself at the place
    /// `below`. Returns whether there was room.
    fn note(&mut self, met: usize) -> bool
        requires room { self.old.count ≤ 16 }
        requires fits { self.old.below + met < 2 ^ 63 }
        ensures noted { result ≡ true
            → IsNoted (listed_runs self.old) (listed_runs self.new) self.old.below met }
        ensures below { result ≡ true → self.new.below ≡ self.old.below + 1 }
        ensures same { result ≡ false → listed_runs self.new ≡ listed_runs self.old }
        ensures same_below { result ≡ false → self.new.below ≡ self.old.below }
        ensures room { self.new.count ≤ 16 }
    {
        let period = self.below;
        let reach = period + met;
        if met / 3 >= period && period_at(self.list(), reach).is_none() {
            if self.count >= ROOM {
                return false;
            }
            self.push(Run {
                period,
                from: 4 * period,
                reach,
            });
        }
        self.below = period + 1;
        true
    }

    /// How far a text with these runs is moved on where its first `met` characters met and the next one didn't.
    pub fn step(&self, met: usize) -> Step
        requires { self.now.count ≤ 16 }
        ensures by { result.by ≡ move_by (listed_runs self.now) self.now.below met }
        ensures kept { result.kept ≡ kept_count (listed_runs self.now) met }
    {
        match period_at(self.list(), met) {
            Some(period) => Step {
                by: period,
                kept: met.saturating_sub(period),
            },
            None => Step {
                by: if met / 4 < self.below { met / 4 + 1 } else { 1 },
                kept: 0,
            },
        }
    }

    /// The runs of a text, found by laying it over itself.
    pub fn of(t: &str, fold: bool) -> Runs
        ensures known { IsKnown (seen_text fold (chars t.now)) (listed_runs result) result.below }
        ensures room { result.count ≤ 16 }
    {
        let mut runs = Runs::new();
        let Some(window) = skip(t, 1) else {
            return runs;
        };
        let mut laid = Laid::at(window, t);
        'places: loop {
            let met = meet(t, laid, fold);
            if !runs.note(met.met) {
                return runs;
            }
            let step = runs.step(met.met);
            let Some(next) = move_on(t, met, step) else {
                return runs;
            };
            runs.below += step.by - 1;
            if next.window.len() / 3 < runs.below {
                return runs;
            }
            laid = next;
        }
    }
}
