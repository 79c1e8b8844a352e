// The functions that other languages call: those of the header include/lampcygnet.h. Each takes any numbers, ends, and promises one answer.
#![tactic(auto)]

ghost use Rattle.std.specs.Prelude.{◌≡◌};
ghost use Rattle.decode.specs.Decode.{decode_of};
ghost use Rattle.pages.specs.Page.{page_of};
ghost use Rattle.chart.specs.Words.{chart_point};
ghost use Rattle.agreements.specs.Agreement.{agrees_of};
ghost use Rattle.explanations.specs.Explanations.{explained_of};
ghost use Rattle.figures.specs.Coding.{coded_of};
ghost use Rattle.fields.specs.declared.FieldKind.{FieldKind};
ghost use Rattle.fields.specs.Run.{sheet_of};
ghost use Rattle.sheet.specs.Checked.{checked_of};
ghost use Rattle.walk.specs.Step.{start_walk};
ghost use Rattle.notes.specs.Note.{note_of};
ghost use Rattle.contents.specs.Contents.{word_bytes, figure_bytes, word_in, figure_in};
ghost use Rattle.writer.specs.Write.{write_of, group_of};
ghost use Rattle.listing.specs.Listing.{text_of, listed_of, buffer_of};
ghost use Rattle.summaries.specs.Summaries.{summarized_of};
ghost use Rattle.flat_contents.specs.Contents.{flat_word_in, flat_figure_in, flat_note};
ghost use Rattle.flat_explanations.specs.Explained.{flat_explained};
ghost use Rattle.flat_figures.specs.Printing.{printed_of};
ghost use Rattle.flat_reassembly.specs.Steps.{reassembled};
ghost use Rattle.flat_listing.specs.Listed.{flat_listed};
ghost use Rattle.flat_pages.specs.Filled.{flat_filled};
ghost use Rattle.flat_places.specs.Places.{flat_checked, flat_written};
ghost use Rattle.flat_points.specs.Points.{flat_point};
ghost use Rattle.flat_readings.specs.Readings.{reading_in};
ghost use Rattle.flat_records.specs.Numbers.{flat_of};
ghost use Rattle.flat_summaries.specs.Flat.{flat_summarized};
ghost use Rattle.flat_walks.specs.Walks.{flat_walk, stepped};
ghost use Rattle.flat_words.specs.Words.{flat_word, encode_flat};

use flat_contents::{FlatFigure, FlatNote};
use flat_explanations::FlatExplained;
use flat_figures::FlatMillionths;
use flat_listing::FlatListed;
use flat_places::FlatPlace;
use flat_points::FlatPoint;
use flat_readings::FlatReading;
use flat_reassembly::{FlatStep, Partial};
use flat_records::FlatRecord;
use flat_summaries::FlatSummary;
use flat_walks::{FlatWalk, FlatWalked};
use flat_words::FlatWord;

// The record of a word, or its refusal.
#[unsafe(no_mangle)]
pub extern "C" fn lampcygnet_decode(word: u32) -> FlatRecord
    ensures { result ≡ flat_of (decode_of word) }
{
    flat_decoder::decode_flat(word)
}

// The word of a record, or its refusal.
#[unsafe(no_mangle)]
pub extern "C" fn lampcygnet_encode(fields: FlatRecord) -> FlatWord
    ensures { result ≡ encode_flat fields }
{
    flat_words::encode_flat(fields)
}

// Fills two lists with the answers to a page of words: the number of each word's refusal, 0 where it is accepted, and its count, 0 where it has none.
#[unsafe(no_mangle)]
pub extern "C" fn lampcygnet_decode_page(
    words: &[u32],
    refusals: &mut [u8],
    counts: &mut [i16],
) -> u8
    ensures answer { result ≡ flat_filled (page_of words.now refusals.old counts.old).answer }
    ensures numbers { refusals.new ≡ (page_of words.now refusals.old counts.old).refusals }
    ensures counted { counts.new ≡ (page_of words.now refusals.old counts.old).counts }
{
    flat_pages::decode_page_flat(words, refusals, counts)
}

// The reading of a word, or its refusal.
#[unsafe(no_mangle)]
pub extern "C" fn lampcygnet_reading_of(word: u32) -> FlatReading
    ensures { result ≡ reading_in word }
{
    flat_readings::reading_flat(word)
}

// The chart point of a course word and a glide word, or its refusal.
#[unsafe(no_mangle)]
pub extern "C" fn lampcygnet_chart_point(course: u32, glide: u32) -> FlatPoint
    ensures { result ≡ flat_point (chart_point course glide) }
{
    flat_points::chart_flat(course, glide)
}

// The word that a figure in millionths is coded to, under a label and a source, or its refusal.
#[unsafe(no_mangle)]
pub extern "C" fn lampcygnet_code_figure(label: u32, source: u32, millionths: i64) -> FlatWord
    ensures { result ≡ flat_word (coded_of label source millionths) }
{
    flat_figures::code_flat(label, source, millionths)
}

// The figure in millionths that a count is printed as, under a label, or its refusal.
#[unsafe(no_mangle)]
pub extern "C" fn lampcygnet_print_count(label: u32, count: i64) -> FlatMillionths
    ensures { result ≡ printed_of label count }
{
    flat_figures::print_count_flat(label, count)
}

// Whether a figure in millionths agrees with a word.
#[unsafe(no_mangle)]
pub extern "C" fn lampcygnet_agrees(word: u32, millionths: i64) -> bool
    ensures { result ≡ agrees_of word millionths }
{
    agreements::agrees(word, millionths)
}

// Why a figure in millionths and a word agree or do not, or its refusal.
#[unsafe(no_mangle)]
pub extern "C" fn lampcygnet_explain(word: u32, millionths: i64) -> FlatExplained
    ensures { result ≡ flat_explained (explained_of word millionths) }
{
    flat_explanations::explain_flat(word, millionths)
}

// Takes one word of group C into what is held of a group.
#[unsafe(no_mangle)]
pub extern "C" fn lampcygnet_reassemble(held: Partial, word: u32) -> FlatStep
    ensures { result ≡ reassembled held word }
{
    flat_reassembly::reassemble(held, word)
}

// Whether a sheet is legal, else its refusal with the offset of the field's tag.
#[unsafe(no_mangle)]
pub extern "C" fn lampcygnet_check_sheet(sheet: &[u8]) -> FlatPlace
    ensures { result ≡ flat_checked (checked_of (sheet_of sheet.now)) }
{
    flat_places::check_flat(sheet)
}

// The walk over a sheet from its first field.
#[unsafe(no_mangle)]
pub extern "C" fn lampcygnet_walk_from_start(sheet: &[u8]) -> FlatWalk
    ensures { result ≡ flat_walk (start_walk sheet.now) }
{
    flat_walks::start_flat(sheet)
}

// One step of a walk: the field and where the walk then stands.
#[unsafe(no_mangle)]
pub extern "C" fn lampcygnet_next_field(sheet: &[u8], walk: FlatWalk) -> FlatWalked
    ensures { result ≡ stepped sheet.now walk }
{
    flat_walks::step_flat(sheet, walk)
}

// Where the text of the note at a place of a sheet is, or its refusal.
#[unsafe(no_mangle)]
pub extern "C" fn lampcygnet_find_note(sheet: &[u8], place: usize) -> FlatNote
    ensures { result ≡ flat_note place (note_of (sheet_of sheet.now) place) }
{
    flat_contents::find_note_flat(sheet, place)
}

// The word that a word field's content holds, or its refusal.
#[unsafe(no_mangle)]
pub extern "C" fn lampcygnet_word_in(content: &[u8]) -> FlatWord
    ensures { result ≡ flat_word_in (word_in content.now) }
{
    flat_contents::word_in_flat(content)
}

// The label and the millionths that a figure field's content holds, or its refusal.
#[unsafe(no_mangle)]
pub extern "C" fn lampcygnet_figure_in(content: &[u8]) -> FlatFigure
    ensures { result ≡ flat_figure_in (figure_in content.now) }
{
    flat_contents::figure_in_flat(content)
}

// Writes a word field at a place of a buffer.
#[unsafe(no_mangle)]
pub extern "C" fn lampcygnet_write_word(out: &mut [u8], place: usize, word: u32) -> FlatPlace
    ensures value { result ≡ flat_written (write_of out.old place FieldKind.Word (word_bytes word)).answer }
    ensures out_after { out.new ≡ (write_of out.old place FieldKind.Word (word_bytes word)).buffer }
{
    flat_places::write_word_flat(out, place, word)
}

// Writes a figure field, a label and millionths, at a place of a buffer.
#[unsafe(no_mangle)]
pub extern "C" fn lampcygnet_write_figure(
    out: &mut [u8],
    place: usize,
    label: u8,
    millionths: i64,
) -> FlatPlace
    ensures value { result ≡ flat_written (write_of out.old place FieldKind.Figure (figure_bytes label millionths)).answer }
    ensures out_after { out.new ≡ (write_of out.old place FieldKind.Figure (figure_bytes label millionths)).buffer }
{
    flat_places::write_figure_flat(out, place, label, millionths)
}

// Writes a note field at a place of a buffer.
#[unsafe(no_mangle)]
pub extern "C" fn lampcygnet_write_note(out: &mut [u8], place: usize, text: &[u8]) -> FlatPlace
    ensures value { result ≡ flat_written (write_of out.old place FieldKind.Note text.now).answer }
    ensures out_after { out.new ≡ (write_of out.old place FieldKind.Note text.now).buffer }
{
    flat_places::write_note_flat(out, place, text)
}

// Writes a group field of a run of bytes, which is checked first as the inside of a top group, at a place of a buffer.
#[unsafe(no_mangle)]
pub extern "C" fn lampcygnet_write_group(out: &mut [u8], place: usize, run: &[u8]) -> FlatPlace
    ensures value { result ≡ flat_written (group_of out.old place run.now).answer }
    ensures out_after { out.new ≡ (group_of out.old place run.now).buffer }
{
    flat_places::write_group_flat(out, place, run)
}

// Writes the listing of a sheet into a buffer.
#[unsafe(no_mangle)]
pub extern "C" fn lampcygnet_list_sheet(sheet: &[u8], out: &mut [u8]) -> FlatListed
    ensures answer { result ≡ flat_listed (listed_of (text_of sheet.now) out.old) }
    ensures content { out.new ≡ buffer_of (text_of sheet.now) out.old }
{
    flat_listing::list_flat(sheet, out)
}

// The summary of the words of a label and a source in a sheet, or its refusal.
#[unsafe(no_mangle)]
pub extern "C" fn lampcygnet_summarize(sheet: &[u8], label: u32, source: u32) -> FlatSummary
    ensures { result ≡ flat_summarized (summarized_of label source (sheet_of sheet.now)) }
{
    flat_summaries::summarize_flat(sheet, label, source)
}
