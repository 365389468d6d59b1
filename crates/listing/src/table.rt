// The forms of the spellings, one for each kind.
ghost use Rattle.std.specs.Prelude.{◌≡◌, ◌<◌};
ghost use Rattle.listing.specs.Forms.{Forms, form_in};

// Eight characters a form: 29 of one byte, the last of them that of data, then 13 of two bytes and 8 of three. A small letter is a mark,
// and points fill a form up. The pair of LD HL,SP+e8 is named by the opcode's own field. Both editions have these forms: they differ in
// what three marks stand for.
// Stays: `form_in` and `Forms` of the definition read a table of eight characters a form.
#[rattlefmt::skip]
static FORMS: [u8; 400] = *b"\
    NOP.....ADD HL,pl [t],A.l A,[t].INC p...DEC p...INC y...DEC y...LD y,z..oA......\
    DAA.....CPL.....SCF.....CCF.....HALT....a A,z...RET c...POP q...RET.....RETI....\
    JP HL...LD SP,HLi [C],A.i A,[C].DI......EI......PUSH q..RST v...DB b....\
    STOP....JR j....JR c,j..LD y,b..i [h],A.ADD SP,ei A,[h].d HL,p+ea A,b...o z.....\
    BIT k,z.RES k,z.SET k,z.\
    d [w],SPLD p,w..JP c,w..LD [w],ALD A,[w]JP w....CALL c,wCALL w..";

// The table, with the fact that it spells each instruction in both editions.
#[derive(Clone, Copy)]
pub(crate) struct Table<'a> {
    forms: &'a [u8],
    ghost spells: { Forms forms.now },
}

impl<'a> Table<'a> {
    pub(crate) fn new() -> Table<'a> {
        Table { forms: &FORMS }
    }

    // A form out of it.
    pub(crate) fn form(self, form: u8) -> &'a [u8]
        requires { form < 50 }
        ensures { result.now ≡ form_in form self.entry.forms.now }
    {
        let from = usize::from(form) * 8;
        &self.forms[from..from + 8]
    }
}
