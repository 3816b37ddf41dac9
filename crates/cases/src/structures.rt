// What the entries of the crate first call.
use crate::answers::Answer;
use crate::items::{Said, refused, told, written};
use crate::request::{Numbers, short};
use first::First;

// No refusal, the name of a structure, and its fields.
fn any(which: u16, found: First) -> Answer {
    match found {
        First::X509Entry {
            version,
            leaf_type,
            timestamp,
            entry_type,
            certificate,
            extensions,
        } => told(
            0,
            which as u64,
            &[
                Said::Number(version),
                Said::Number(leaf_type),
                Said::Number(timestamp),
                Said::Number(entry_type),
                Said::Bytes(certificate),
                Said::Bytes(extensions),
            ],
        ),
        First::PrecertEntry {
            version,
            leaf_type,
            timestamp,
            entry_type,
            issuer_key_hash,
            tbs_certificate,
            extensions,
        } => told(
            0,
            which as u64,
            &[
                Said::Number(version),
                Said::Number(leaf_type),
                Said::Number(timestamp),
                Said::Number(entry_type),
                Said::Bytes(issuer_key_hash),
                Said::Bytes(tbs_certificate),
                Said::Bytes(extensions),
            ],
        ),
        First::CertificateTimestamp {
            version,
            log_id,
            timestamp,
            extensions,
            algorithms,
            signature,
        } => told(
            0,
            which as u64,
            &[
                Said::Number(version),
                Said::Bytes(log_id),
                Said::Number(timestamp),
                Said::Bytes(extensions),
                Said::Number(algorithms),
                Said::Bytes(signature),
            ],
        ),
        First::TreeHead {
            version,
            signature_type,
            timestamp,
            size,
            root_hash,
        } => told(
            0,
            which as u64,
            &[
                Said::Number(version),
                Said::Number(signature_type),
                Said::Number(timestamp),
                Said::Number(size),
                Said::Bytes(root_hash),
            ],
        ),
    }
}

fn numbers(n: Numbers) -> first::Numbers {
    first::Numbers {
        timestamp: n.d,
        size: n.e,
        entry_type: short(n.c),
        algorithms: short(n.f),
    }
}

pub(crate) fn read(n: Numbers, bytes: &[u8]) -> Answer {
    let which = short(n.b);
    match first::read(short(n.a), which, bytes) {
        Ok(found) => any(which, found),
        Err(e) => refused(e.refusal, e.place),
    }
}

pub(crate) fn write<'a>(n: Numbers, vectors: first::Vectors<'a>, lent: &mut [u8]) -> Answer {
    written(first::write(short(n.a), short(n.b), numbers(n), vectors, lent))
}
