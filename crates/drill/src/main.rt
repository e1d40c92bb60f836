// Prints the drill sheet of document 02's A1. It only writes what the library `sheet` makes.
#![tactic(auto)]

use sheet::SHEET;

fn main(rt: HostRuntime) {
    let mut text = [0u8; SHEET];
    // Never refused: the text is as long as the sheet.
    let _ = sheet::write_sheet(&mut text);
    if rt.write_all(&text).is_err() {
        let _ = eprintln!(rt; "drill: cannot write");
    }
}
