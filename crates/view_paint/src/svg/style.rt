//! How a picture looks: in light, and in dark where the reader asks for it.

/// The style sheet of a picture.
pub(crate) const STYLE: &str = "\
     text{font:11.6px ui-monospace,SFMono-Regular,Menlo,\"DejaVu Sans Mono\",\
     \"Liberation Mono\",monospace;\
     white-space:pre}\
     .bold,.bad,.n,.h{font-weight:bold}.struck{text-decoration:line-through}\
     .e{text-anchor:end}.m{text-anchor:middle}\
     .life{fill:#8c959f}.arrow,.cut{fill:none;stroke-width:1.5}.urgent{stroke-width:3}\
     .dropped{stroke-dasharray:6 3}.piece{stroke-dasharray:1.5 4}\
     .sending,.receiving,.cancelling{fill-opacity:0}\
     .sending,.receiving,.cancelling{stroke-width:1.5}.cancelling{stroke-dasharray:3 2}\
     .kept,.draining{fill:none}.kept{stroke-dasharray:5 3}\
     .draining{stroke-dasharray:1.5 3}.bg,.lb{fill:#ffffff}\
     .band{fill:#f3f5f8}text{fill:#1f2328}.muted,.struck{fill:#59636e}.bad{fill:#b42318}\
     .n{fill:#ffffff}.box,.leased,.kept,.draining{stroke:#8c959f}\
     .box,.leased{fill:#dde3ea}.cut{stroke:#b42318}.st{fill:#fff3c4;stroke:#b08800}\
     .s0{stroke:#0b5cad}.f0{fill:#0b5cad}.s1{stroke:#a84300}.f1{fill:#a84300}\
     .s2{stroke:#1a7431}.f2{fill:#1a7431}.s3{stroke:#7a35a3}.f3{fill:#7a35a3}\
     .s4{stroke:#0a6c7a}.f4{fill:#0a6c7a}.s5{stroke:#b0215a}.f5{fill:#b0215a}\
     .sk{stroke:#1f2328}.fk{fill:#1f2328}\
     @media(prefers-color-scheme:dark){.bg,.lb{fill:#0d1117}.band{fill:#161c25}\
     text{fill:#e6edf3}.muted,.struck{fill:#9aa4af}.bad{fill:#ff8a80}.n{fill:#0d1117}\
     .life{fill:#6e7681}\
     .box,.leased,.kept,.draining{stroke:#6e7681}.box,.leased{fill:#2b333d}\
     .cut{stroke:#ff8a80}.st{fill:#3a3000;stroke:#b08800}.s0{stroke:#6cb0ff}\
     .f0{fill:#6cb0ff}.s1{stroke:#f0a35e}.f1{fill:#f0a35e}.s2{stroke:#6fcf7f}\
     .f2{fill:#6fcf7f}.s3{stroke:#cf9bf0}.f3{fill:#cf9bf0}.s4{stroke:#5cc9d6}\
     .f4{fill:#5cc9d6}.s5{stroke:#f58fb5}.f5{fill:#f58fb5}.sk{stroke:#e6edf3}\
     .fk{fill:#e6edf3}}";
