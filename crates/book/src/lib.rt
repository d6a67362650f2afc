// The handover book, Ask 8, as a lent list of notes. Nothing is asked of the caller: a list that is no book is refused. On any answer
// but `Ok` all that is lent is as it was.
#![tactic(auto)]

ghost use Rattle.std.specs.Prelude.{◌≡◌, length};
ghost use Rattle.shelf.specs.Outcome.{numbers_of};
ghost use Rattle.union.specs.Union.{join_of};
ghost use Rattle.booktext.specs.BookText.{read_of, write_of};
ghost use Rattle.book.specs.Book.{read_into, written_into, joined_into};

pub use booktext::{read, write};
use notes::Note;
use shelf::Numbers;
pub use union::join;

// The three with their outcomes in numbers, as C takes them. `book_c` exports them.
pub fn book_read(text: &[u8], book: &mut [Note]) -> Numbers
    ensures { (result ≡ numbers_of (read_of (length book.old) text.now))
        × (book.new ≡ read_into text.now book.old) }
{
    Numbers::from(read(text, book))
}

pub fn book_write(book: &[Note], text: &mut [u8]) -> Numbers
    ensures { (result ≡ numbers_of (write_of (length text.old) book.now))
        × (text.new ≡ written_into book.now text.old) }
{
    Numbers::from(write(book, text))
}

pub fn book_join(first: &[Note], second: &[Note], joined: &mut [Note]) -> Numbers
    ensures { (result ≡ numbers_of (join_of (length joined.old) first.now second.now))
        × (joined.new ≡ joined_into first.now second.now joined.old) }
{
    Numbers::from(join(first, second, joined))
}
