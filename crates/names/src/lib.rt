// The names of response and command codes. What they are stands in specs/Names.antt.
#![tactic(auto)]

ghost use Rattle.std.specs.Prelude.{◌≡◌};
ghost use Rattle.names.specs.Names.{name_bytes, response_place, command_place};
ghost use Rattle.names.specs.Says.{says_name};

// Where a name stands in the name bytes.
#[derive(Clone, Copy, Debug, PartialEq, Eq)]
pub struct Name {
    pub start: usize,
    pub len: usize,
}

// The names end to end: the responses', then the commands'.
const NAMES: [u8; 975] = *b"\
    UndefinedOkGeneralErrorSessionNotOpenInvalidTransactionIdOperationNotSupportedParameterNotSupported\
    IncompleteTransferInvalidStorageIdInvalidObjectHandleDevicePropNotSupportedInvalidObjectFormatCode\
    StoreFullObjectWriteProtectedStoreReadOnlyAccessDeniedNoThumbnailPresentSelfTestFailed\
    PartialDeletionStoreNotAvailableSpecificationByFormatUnsupportedNoValidObjectInfoInvalidCodeFormat\
    UnknownVendorCodeCaptureAlreadyTerminatedDeviceBusyInvalidParentObjectInvalidDevicePropFormat\
    InvalidDevicePropValueInvalidParameterSessionAlreadyOpenTransactionCancelled\
    SpecificationOfDestinationUnsupported\
    UndefinedGetDeviceInfoOpenSessionCloseSessionGetStorageIDsGetStorageInfoGetNumObjects\
    GetObjectHandlesGetObjectInfoGetObjectGetThumbDeleteObjectSendObjectInfoSendObjectInitiateCapture\
    FormatStoreResetDeviceSelfTestSetObjectProtectionPowerDownGetDevicePropDescGetDevicePropValue\
    SetDevicePropValueResetDevicePropValueTerminateOpenCaptureMoveObjectCopyObjectGetPartialObject\
    InitiateOpenCapture";

// Where each name starts in the name bytes and how many it takes, by its code less the first of its kind.
const RESPONSE_STARTS: [u16; 33] = [
    0, 9, 11, 23, 37, 57, 78, 99, 117, 133, 152, 174, 197, 206, 226, 239, 251, 269, 283, 298, 315,
    347, 364, 381, 398, 422, 432, 451, 474, 496, 512, 530, 550,
];

const RESPONSE_LENGTHS: [u8; 33] = [
    9, 2, 12, 14, 20, 21, 21, 18, 16, 19, 22, 23, 9, 20, 13, 12, 18, 14, 15, 17, 32, 17, 17, 17,
    24, 10, 19, 23, 22, 16, 18, 20, 37,
];

const COMMAND_STARTS: [u16; 29] = [
    587, 596, 609, 620, 632, 645, 659, 672, 688, 701, 710, 718, 730, 744, 754, 769, 780, 791, 799,
    818, 827, 844, 862, 880, 900, 920, 930, 940, 956,
];

const COMMAND_LENGTHS: [u8; 29] = [
    9, 13, 11, 12, 13, 14, 13, 16, 13, 9, 8, 12, 14, 10, 15, 11, 11, 8, 19, 9, 17, 18, 18, 20, 20,
    10, 10, 16, 19,
];

// All name bytes. They are made anew at each call: call it once and lend them.
pub fn name_bytes() -> [u8; 975]
    ensures { result ≡ name_bytes }
{
    NAMES
}

pub fn response_name(code: u16) -> Option<Name>
    ensures { says_name result ≡ response_place code }
{
    if code < 0x2000 {
        return None;
    }
    let k = (code - 0x2000) as usize;
    if k >= 33 {
        return None;
    }
    Some(Name {
        start: RESPONSE_STARTS[k] as usize,
        len: RESPONSE_LENGTHS[k] as usize,
    })
}

pub fn command_name(code: u16) -> Option<Name>
    ensures { says_name result ≡ command_place code }
{
    if code < 0x1000 {
        return None;
    }
    let k = (code - 0x1000) as usize;
    if k >= 29 {
        return None;
    }
    Some(Name {
        start: COMMAND_STARTS[k] as usize,
        len: COMMAND_LENGTHS[k] as usize,
    })
}
