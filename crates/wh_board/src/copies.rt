//! The two copies of the page, under the rule that all who share them know one book.
#![tactic(auto)]

ghost use Rattle.std.specs.Prelude.{◌≡◌, [], Some, IfSome, IfNone, fold, drop};
ghost use Rattle.left_right.specs.Sides.{view};
ghost use Rattle.wh_board.specs.Rules.{MayBeOf};

use crate::page::Page;
use atomic_table::{Join, Split};
use crossbeam_utils::rule::{Outcome, Protocol};
use left_right::reader::Reader;
use left_right::writer::Writer;
use std::sync::Wait;

/// What a thread knows is a page that it has met, if any.
pub struct OneBook;

impl Protocol<Page, Option<Page>> for OneBook {
    ghost use Rattle.std.specs.Prelude.{None};
    ghost use Rattle.wh_board.specs.Rules.{AllOfOneBook};

    ghost holds = { AllOfOneBook };

    ghost first = { None };
}

/// What was known is of the book that is met.
pub struct Meets;

impl Outcome<Page, Option<Page>> for Meets {
    ghost use Rattle.wh_board.specs.Rules.{Finds};

    ghost then = { Finds };
}

/// The writer tells what it knows, and knows it still.
pub struct Twice;

impl Split<Option<Page>> for Twice {
    ghost left = { λ known. known };

    ghost right = { λ known. known };
}

/// A reader knows what it was told.
pub struct Told;

impl Join<Option<Page>> for Told {
    ghost use Rattle.std.specs.Prelude.{None};
    ghost use Rattle.wh_board.specs.Rules.{latter};

    ghost both = { latter };

    ghost spent = { None };
}

pub type PageReader = Reader<Page, Option<Page>, OneBook>;

pub type PageWriter = Writer<Page, Page, Option<Page>, OneBook>;

/// The page that is published, or `None` once the writer is gone. It waits for nobody.
pub fn read(reader: PageReader, _by: ()) -> (PageReader, Option<Page>)
    ensures found { IfSome result.1 (λ page. MayBeOf page.book (view reader.place) × (view result.0.place ≡ Some page)) }
    ensures gone { IfNone result.1 (view result.0.place ≡ view reader.place) }
{
    match reader.enter_as::<Meets>() {
        Ok(reading) => {
            let page = reading.get().again();
            (reading.leave(), Some(page))
        }
        Err(reader) => (reader, None),
    }
}

/// Publishes the page that waits. It waits for those that still read the page from before the last call.
pub fn show<R: Wait>(writer: PageWriter, rt: &R) -> (PageWriter, ())
    requires { (fold (λ before page. page) writer.desk.shown.value (drop writer.behind writer.log.items)).book ≡ writer.desk.shown.value.book }
    ensures shown { result.0.desk.shown.value ≡ fold (λ before page. page) writer.desk.shown.value (drop writer.behind writer.log.items) }
    ensures none_waits { drop result.0.behind result.0.log.items ≡ [] }
    ensures known { view result.0.desk.place ≡ Some result.0.desk.shown.value }
{
    let (writer, shown) = writer.publish_as::<Meets, R>(rt);
    prove!(shown.is_ok());
    (writer, ())
}
