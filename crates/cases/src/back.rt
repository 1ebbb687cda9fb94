// A request file that reads, written back: the text has to be the file again.

// Whether the file, read into lent tables, is written back byte for byte, with zeros behind it.
pub(crate) fn is_written_back(file: &[u8]) -> bool {
    let mut forms = [0u16; 3072];
    let mut policy = [0u16; 128];
    let mut steps = [0u16; 4096];
    let Ok(counts) = reader::read_request(file, &mut forms, &mut policy, &mut steps) else {
        return false;
    };
    let mut out = [1u8; 65536];
    let written = writer::write(counts, &forms, &policy, &steps, &mut out);
    let Some(rest) = out.strip_prefix(file) else {
        return false;
    };
    // What is written tells a refusal by its number, as other languages see it.
    written.refusal == 0 && written.length == file.len() && rest.iter().all(|byte| *byte == 0)
}
