ghost use Rattle.gv_text.specs.Guest.{LinesAreTheTexts, LinesNameTheirGuest};

/// Two laws of every report, with nothing to run: its text has the lines that were printed and no
/// others; and of those, the ones whose first word is a guest's number are the ones that speak of
/// that guest.
pub fn lines_name_their_guest()
    ensures texts { LinesAreTheTexts }
    ensures guests { LinesNameTheirGuest }
{}
