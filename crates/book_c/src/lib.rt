// The lent list for C: a library cannot export to C itself, so that each function that C calls stands here again, with the promise that it
// has in `book`.
#![tactic(auto)]

ghost use Rattle.std.specs.Prelude.{◌≡◌, length};
ghost use Rattle.shelf.specs.Outcome.{numbers_of};
ghost use Rattle.union.specs.Union.{join_of};
ghost use Rattle.booktext.specs.BookText.{read_of, write_of};
ghost use Rattle.book.specs.Book.{read_into, written_into, joined_into};

use notes::Note;
use shelf::Numbers;

#[unsafe(no_mangle)]
pub extern "C" fn book_read(text: &[u8], book: &mut [Note]) -> Numbers
    ensures { (result ≡ numbers_of (read_of (length book.old) text.now))
        × (book.new ≡ read_into text.now book.old) }
{
    book::book_read(text, book)
}

#[unsafe(no_mangle)]
pub extern "C" fn book_write(book: &[Note], text: &mut [u8]) -> Numbers
    ensures { (result ≡ numbers_of (write_of (length text.old) book.now))
        × (text.new ≡ written_into book.now text.old) }
{
    book::book_write(book, text)
}

#[unsafe(no_mangle)]
pub extern "C" fn book_join(first: &[Note], second: &[Note], joined: &mut [Note]) -> Numbers
    ensures { (result ≡ numbers_of (join_of (length joined.old) first.now second.now))
        × (joined.new ≡ joined_into first.now second.now joined.old) }
{
    book::book_join(first, second, joined)
}
