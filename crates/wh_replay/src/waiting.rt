//! Where what lines were answered waits until it is told.

ghost use Rattle.std.specs.Prelude.{◌≡◌, ◌<◌, ◌≤◌, ◌+◌, ◌-◌, ◌^◌, List, ◌++◌, ◌∷◌, [], Bool, true, false, length, Option};
ghost use Rattle.std.specs.Option.{option_to_list};
ghost use Rattle.wh_replay.specs.declared.answering.Answer.{Answer as Kind};

use crate::answering::Answer;
use arrayvec::ArrayVec;

/// How a script is served: how much of what lines were answered may wait until it is told, and whether what follows the last
/// line feed is a line, too.
pub trait Answers: Drop {
    /// What lines were answered, in their order.
    ghost waiting: { Self → List Kind };
    /// There is room for one more answer.
    ghost has_room: { Self → Type 0 };
    /// What follows the last line feed is a line.
    ghost serves_last: { Bool };

    fn serves_last(&self) -> bool
        ensures { result ≡ serves_last };

    /// Whether there is no room for one more answer.
    fn is_full(&self) -> bool
        ensures { result ≡ false → has_room self.now };

    /// Adds an answer.
    fn add(&mut self, answer: Answer)
        requires { has_room self.old }
        ensures { waiting self.new ≡ waiting self.old ++ answer ∷ [] };

    /// All was told.
    fn clear(&mut self)
        ensures none { waiting self.new ≡ [] }
        ensures room { has_room self.new };

    fn as_slice(&self) -> &[Answer]
        ensures { result.now ≡ waiting self.now };
}

/// Each line is told before the next is served, and the last one needs no line feed.
#[derive(Drop)]
pub struct OneAnswer {
    answer: ArrayVec<Answer, 1>,
}

impl OneAnswer {
    pub fn new() -> OneAnswer
        ensures { result.answer.items ≡ [] }
    {
        OneAnswer {
            answer: ArrayVec::new(),
        }
    }
}

impl Answers for OneAnswer {
    ghost waiting = { λ a. a.answer.items };

    ghost has_room = { λ a. length a.answer.items < 1 };

    ghost serves_last = { true };

    #[inline(always)]
    fn serves_last(&self) -> bool {
        true
    }

    #[inline(always)]
    fn is_full(&self) -> bool {
        !self.answer.is_empty()
    }

    #[inline(always)]
    fn add(&mut self, answer: Answer) {
        self.answer.push(answer);
    }

    #[inline(always)]
    fn clear(&mut self) {
        self.answer.clear();
    }

    #[inline(always)]
    fn as_slice(&self) -> &[Answer] {
        self.answer.as_slice()
    }
}

/// One read gives no more lines that are answered: it gives at most 65,536 bytes, and of these a line that began before it has
/// at least one, and each other line that is answered at least two.
const MOST_ANSWERS: usize = 32_768;

/// All whole lines of a read are served before they are told, and what follows the last line feed is no line.
#[derive(Drop)]
pub struct ManyAnswers {
    answers: ArrayVec<Answer, MOST_ANSWERS>,
}

impl ManyAnswers {
    #[inline(always)]
    pub fn new() -> ManyAnswers
        ensures { result.answers.items ≡ [] }
    {
        ManyAnswers {
            answers: ArrayVec::new(),
        }
    }
}

impl Answers for ManyAnswers {
    ghost waiting = { λ a. a.answers.items };

    ghost has_room = { λ a. length a.answers.items < 32768 };

    ghost serves_last = { false };

    #[inline(always)]
    fn serves_last(&self) -> bool {
        false
    }

    #[inline(always)]
    fn is_full(&self) -> bool {
        self.answers.is_full()
    }

    #[inline(always)]
    fn add(&mut self, answer: Answer) {
        self.answers.push(answer);
    }

    #[inline(always)]
    fn clear(&mut self) {
        self.answers.clear();
    }

    #[inline(always)]
    fn as_slice(&self) -> &[Answer] {
        self.answers.as_slice()
    }
}

/// Adds what a line was answered, if it was: how many replies there are then.
#[inline(always)]
pub(crate) fn note<A: Answers>(answers: &mut A, replies: u64, answer: Option<Answer>) -> u64
    requires { A.has_room answers.old }
    ensures waits { A.waiting answers.new ≡ A.waiting answers.old ++ option_to_list answer }
    ensures counted { replies + length (option_to_list answer) ≤ 2 ^ 64 - 1 → result ≡ replies + length (option_to_list answer) }
{
    match answer {
        Some(answer) => {
            answers.add(answer);
            replies.saturating_add(1)
        }
        None => replies,
    }
}
