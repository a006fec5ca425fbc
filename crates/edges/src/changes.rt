// What the words of a case change in a file, each as RECORD@PLACE=BYTES.
use crate::good::Sample;
use crate::{files, values};
use words::fields;

// Puts what one word says.
fn change(file: &mut [u8], sample: Sample<'_>, word: &[u8]) {
    let place = fields::head(b'=', word);
    let from = sample.start(values::count(fields::head(b'@', place)));
    let at = from + values::count(fields::tail(b'@', place));
    files::put(file, at, fields::tail(b'=', word));
}

// Puts what each word says.
pub(crate) fn change_all(file: &mut [u8], sample: Sample<'_>, words: &[u8]) {
    for word in words.split(|b| *b == b' ') {
        change(file, sample, word);
    }
}
