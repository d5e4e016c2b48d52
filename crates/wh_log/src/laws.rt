//! Laws on logs and their first bad lines.

ghost use Rattle.std.specs.Prelude.{◌≡◌, ℕ, List};
ghost use Rattle.wh_text.specs.Lines.{IsLine};
ghost use Rattle.wh_event.specs.declared.reply.Reply.{Reply};
ghost use Rattle.wh_log.specs.Logs.{Content, IsLogText};
ghost use Rattle.wh_log.specs.Ranges.{ReplyKeeps};
ghost use Rattle.wh_log.specs.Told.{Answered, AnsweredKeeps, full_text, placed_text};
ghost use Rattle.wh_log.specs.Collecting.{Any};
ghost use Rattle.wh_log.specs.FirstBad.{IsFirstBad, IsLogOf};
ghost use Rattle.wh_log.specs.Torn.{CutsAreFound, CutsBegin};

/// What logs and their first bad lines are. No function calls this.
pub fn logs_are()
    // A text is a log of one content.
    ensures content { (text : List ℕ) (a b : Content) → IsLogText a text → IsLogText b text → a ≡ b }
    // A text has one first bad line.
    ensures line { (text : List ℕ) (m n : ℕ) → IsFirstBad Any text m → IsFirstBad Any text n → m ≡ n }
    // No log has one.
    ensures none { (text : List ℕ) (n : ℕ) → IsFirstBad Any text n → IsLogOf Any text → ⊥ }
{}

/// What is found of a log that was cut. No function calls this.
pub fn cuts_are_found()
    // The entries that stand whole.
    ensures found { CutsAreFound }
    // It begins a log, so it is never bad.
    ensures begin { CutsBegin }
{}

/// What full texts of replies are. No function calls this.
pub fn replies_are()
    // They have no line feed.
    ensures lines { (reply : Reply) → ReplyKeeps reply → IsLine (full_text reply) }
    // A text tells one reply.
    ensures one { (a b : Reply) → ReplyKeeps a → ReplyKeeps b → full_text a ≡ full_text b → a ≡ b }
    // And one that is told with its place also the place and the clock, where these are numbers of 64 bits.
    ensures placed { (a b : Answered) → AnsweredKeeps a → AnsweredKeeps b → placed_text a ≡ placed_text b → a ≡ b }
{}
