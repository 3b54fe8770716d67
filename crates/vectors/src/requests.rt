//! Requests of a load to a device, through the codecs of services and of the link layer.

ghost use Rattle.knx_model.specs.Apdu.{IsInRange};

use knx_model::{Apdu, ApduOctets, Datagram, Ldata, LdataCode, Tpdu};
use std::process::Abort;

/// The request that carries a TPDU to the device 1.1.5.
fn request_of(rt: &impl Abort, tpdu: &Tpdu) -> Datagram
    requires { IsInRange tpdu.now }
{
    let tpdu = apdu_frames::encode(tpdu);
    assert!(rt; !tpdu.is_empty());
    cemi_frames::encode(&Ldata {
        code: LdataCode::Req,
        error: false,
        group: false,
        priority: 3,
        hops: 6,
        source: 0,
        destination: 0x1105,
        tpdu,
    })
}

#[test]
fn numbered_services_to_a_device_are_encoded(rt: HostRuntime) {
    let reads = Tpdu::Numbered {
        number: 0,
        apdu: Apdu::DescriptorRead(0),
    };
    let asks_length = Tpdu::Numbered {
        number: 1,
        apdu: Apdu::PropertyRead {
            object: 0,
            property: 56,
            count: 1,
            start: 1,
        },
    };
    let unloads = Tpdu::Numbered {
        number: 2,
        apdu: Apdu::PropertyWrite {
            object: 4,
            property: 5,
            count: 1,
            start: 1,
            octets: ApduOctets::from_slice(&[4, 0, 0, 0, 0, 0, 0, 0, 0, 0]),
        },
    };
    assert_eq!(rt;
        request_of(&rt, &reads).as_slice(),
        b"\x11\x00\xBC\x60\x00\x00\x11\x05\x01\x43\x00".as_slice()
    );
    assert_eq!(rt;
        request_of(&rt, &asks_length).as_slice(),
        b"\x11\x00\xBC\x60\x00\x00\x11\x05\x05\x47\xD5\x00\x38\x10\x01".as_slice()
    );
    assert_eq!(rt;
        request_of(&rt, &unloads).as_slice(),
        b"\x11\x00\xBC\x60\x00\x00\x11\x05\x0F\x4B\xD7\x04\x05\x10\x01\x04\0\0\0\0\0\0\0\0\0".as_slice()
    );
}
