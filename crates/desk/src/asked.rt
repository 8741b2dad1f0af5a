//! What a session asks: an office that nobody else asks, or one behind a lock.

ghost use Rattle.desk.specs.Asked.{AnswersAlone};
ghost use Rattle.register.specs.Registered.{NoneOut};

use crate::answers::{Texts, Told, answer};
use devices::Disk;
use http_api::Ask;
use office::Office;

/// What answers asks.
pub(crate) trait Asked {
    ghost use Rattle.std.specs.Prelude.{ℕ, List};
    ghost use Rattle.desk.specs.Answering.{told_bytes};
    ghost use Rattle.http_api.specs.declared.asks.Ask.{Ask};

    /// It can be asked now.
    ghost ready: { Self → Type 0 };

    /// What is replied to an ask, and what has become of it then.
    ghost answers: { Self → Ask → List ℕ → Self → Type 0 };

    /// Answers an ask, in the texts.
    fn answer(&mut self, ask: Ask, texts: &mut Texts) -> Told
        requires { ready self.old }
        ensures ready { ready self.new }
        ensures answered { answers self.old ask (told_bytes result texts.new.reply) self.new };
}

impl<D: Disk> Asked for Office<D> {
    ghost ready = { λ office. NoneOut office.register };

    ghost answers = { AnswersAlone D.Disk };

    fn answer(&mut self, ask: Ask, texts: &mut Texts) -> Told {
        answer(self, ask, texts)
    }
}
