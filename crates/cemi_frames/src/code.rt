//! The message code of a frame (KNX standard 3/6/3, common EMI): L_Data.req, L_Data.con or L_Data.ind.

ghost use Rattle.std.specs.Prelude.{◌≡◌, IfSome, IfNone};
ghost use Rattle.knx_model.specs.Cemi.{code_octet, IsCode};

use knx_model::LdataCode;

/// L_Data.req.
const L_DATA_REQ: u8 = 0x11;
/// L_Data.con.
const L_DATA_CON: u8 = 0x2E;
/// L_Data.ind.
const L_DATA_IND: u8 = 0x29;

/// The code that an octet is.
pub fn read(octet: u8) -> Option<LdataCode>
    ensures some { IfSome result (λ code. octet ≡ code_octet code) }
    ensures none { IfNone result (¬ IsCode octet) }
{
    match octet {
        L_DATA_REQ => Some(LdataCode::Req),
        L_DATA_CON => Some(LdataCode::Con),
        L_DATA_IND => Some(LdataCode::Ind),
        _ => None,
    }
}

/// The octet of a code.
pub fn octet_of(code: LdataCode) -> u8
    ensures { result ≡ code_octet code }
{
    match code {
        LdataCode::Req => L_DATA_REQ,
        LdataCode::Con => L_DATA_CON,
        LdataCode::Ind => L_DATA_IND,
    }
}
